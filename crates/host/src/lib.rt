// The library for hosts in C and Rust: every function works on numbers and byte slices, is total on any bytes, and answers a size or
// 2^63 plus the number of a refusal.
#![tactic(auto)]

ghost use Rattle.std.specs.Prelude.{◌≡◌};
ghost use Rattle.record.specs.Calls.{load_of};
ghost use Rattle.panel_lines.specs.Panel.{panel_of, out_after};
ghost use Rattle.trace_lines.specs.Trace.{trace_of, out_after as trace_after};
ghost use Rattle.host_trainer.specs.Records.{start_in, score_answered, counts_answered, written_of, record_after};
ghost use Rattle.host_trainer.specs.Questions.{asked_in_of, asked_after};
ghost use Rattle.host_trainer.specs.Lookups.{lookups, lookups_after, replaced, replaced_after};
ghost use Rattle.host_trainer.specs.Undone.{undone_in};
ghost use Rattle.host_trainer.specs.Changed.{changed_in};
ghost use Rattle.host_lists.specs.Lists.{candidates_in, candidates_after, row_in, row_after, equal_in};
ghost use Rattle.host_trees.specs.Lists.{next_list_in, next_list_after};
ghost use Rattle.host_trees.specs.Rows.{even_row_in};
ghost use Rattle.host_memory.specs.Within.{within_in, within_after};
ghost use Rattle.host_memory.specs.Tested.{tested_in, tested_after};
ghost use Rattle.host_answers.specs.Answers.{answers_in};
ghost use Rattle.host_sender.specs.Layout.{new_in, new_after};
ghost use Rattle.host_sender.specs.Events.{events as events_of, sender_left, replies_left};
ghost use Rattle.host_draws.specs.Steps.{step_in, step_left, output_left, back_in, back_left};
ghost use Rattle.host_draws.specs.OwnEvents.{own_in, own_sender, own_generator, own_out_of};
ghost use Rattle.host_burst.specs.Bursts.{burst_in, sender_left as burst_sender, windows_left, flags_left};
ghost use Rattle.host.specs.Answers.{answer_of};

use refusal::Refusal;

// Each exported function is one call and its answer, with the parameters that the C interface has.
// One number, as the C interface has it: the value, or 2^63 plus the number of a refusal.
#[tactic(auto, unfolding(crate::specs::Answers::answer_of))]
fn answer(s: Result<usize, Refusal>) -> u64
    ensures { result ≡ answer_of s }
{
    match s {
        Ok(n) => n as u64,
        Err(refused) => 9223372036854775808 + u64::from(refused.number()),
    }
}

// Starts a trainer by its settings and writes its record.
#[unsafe(no_mangle)]
pub extern "C" fn knellstone_start(settings: &[u8], out: &mut [u8]) -> u64
    ensures { (result ≡ answer_of (written_of (start_in settings.now) out.old)) × (out.new ≡ record_after (start_in settings.now) out.old) }
{
    answer(host_trainer::start(settings, out))
}

// What the trainer of a record asks.
#[unsafe(no_mangle)]
pub extern "C" fn knellstone_question(held: &[u8], out: &mut [u8]) -> u64
    ensures { (result ≡ answer_of (asked_in_of held.now out.old)) × (out.new ≡ asked_after held.now out.old) }
{
    answer(host_trainer::question(held, out))
}

// Answers with counts, and writes the next record.
#[unsafe(no_mangle)]
pub extern "C" fn knellstone_answer_counts(held: &[u8], counts: &[u8], out: &mut [u8]) -> u64
    ensures { (result ≡ answer_of (written_of (counts_answered held.now counts.now) out.old)) × (out.new ≡ record_after (counts_answered held.now counts.now) out.old) }
{
    answer(host_trainer::answer_counts(held, counts, out))
}

// Answers with a score, by its bits, and writes the next record.
#[unsafe(no_mangle)]
pub extern "C" fn knellstone_answer_score(held: &[u8], bits: u64, out: &mut [u8]) -> u64
    ensures { (result ≡ answer_of (written_of (score_answered held.now bits) out.old)) × (out.new ≡ record_after (score_answered held.now bits) out.old) }
{
    answer(host_trainer::answer_score(held, bits, out))
}

// Takes the newest split of the record's tree back, and writes the record of what is left.
#[unsafe(no_mangle)]
pub extern "C" fn knellstone_undo_split(held: &[u8], out: &mut [u8]) -> u64
    ensures { (result ≡ answer_of (written_of (undone_in held.now) out.old)) × (out.new ≡ record_after (undone_in held.now) out.old) }
{
    answer(host_trainer::undo_split(held, out))
}

// Gives the trainer of a record new settings, and writes the next record.
#[unsafe(no_mangle)]
pub extern "C" fn knellstone_change_settings(held: &[u8], settings: &[u8], out: &mut [u8]) -> u64
    ensures { (result ≡ answer_of (written_of (changed_in held.now settings.now) out.old)) × (out.new ≡ record_after (changed_in held.now settings.now) out.old) }
{
    answer(host_trainer::change_settings(held, settings, out))
}

// What each point finds in the tree of a record's trainer.
#[unsafe(no_mangle)]
pub extern "C" fn knellstone_lookup(held: &[u8], points: &[u8], out: &mut [u8]) -> u64
    ensures { (result ≡ answer_of (lookups held.now points.now out.old)) × (out.new ≡ lookups_after held.now points.now out.old) }
{
    answer(host_trainer::lookup(held, points, out))
}

// The same with one leaf's action replaced.
#[unsafe(no_mangle)]
pub extern "C" fn knellstone_lookup_replaced(
    held: &[u8],
    leaf: u16,
    action: &[u8],
    points: &[u8],
    out: &mut [u8],
) -> u64
    ensures { (result ≡ answer_of (replaced held.now leaf action.now points.now out.old)) × (out.new ≡ replaced_after held.now leaf action.now points.now out.old) }
{
    answer(host_trainer::lookup_replaced(held, leaf, action, points, out))
}

// A fresh sender by its repeat mode.
#[unsafe(no_mangle)]
pub extern "C" fn knellstone_sender(mode: &[u8], out: &mut [u8]) -> u64
    ensures { (result ≡ answer_of (new_in mode.now out.old)) × (out.new ≡ new_after mode.now out.old) }
{
    answer(host_sender::new(mode, out))
}

// Acks, sends and ticks in turn, over the tree of a record's trainer.
#[unsafe(no_mangle)]
pub extern "C" fn knellstone_events(
    held: &[u8],
    sender: &mut [u8],
    list: &[u8],
    out: &mut [u8],
) -> u64
    ensures { (result ≡ answer_of (events_of held.now sender.old list.now out.old)) × ((sender.new ≡ sender_left held.now sender.old list.now out.old) × (out.new ≡ replies_left held.now sender.old list.now out.old)) }
{
    answer(host_sender::events(held, sender, list, out))
}

// A burst of acks, up to the first that is refused, over the tree of a record's trainer.
#[unsafe(no_mangle)]
pub extern "C" fn knellstone_burst(
    held: &[u8],
    sender: &mut [u8],
    list: &[u8],
    windows: &mut [u8],
    clipped: &mut [u8],
) -> u64
    ensures { (result ≡ answer_of (burst_in held.now sender.old list.now windows.old clipped.old)) × ((sender.new ≡ burst_sender held.now sender.old list.now windows.old clipped.old) × ((windows.new ≡ windows_left held.now sender.old list.now windows.old clipped.old) × (clipped.new ≡ flags_left held.now sender.old list.now windows.old clipped.old))) }
{
    answer(host_burst::burst(held, sender, list, windows, clipped))
}

// The panel's lines of a record followed by its counts.
#[unsafe(no_mangle)]
pub extern "C" fn knellstone_panel(input: &[u8], out: &mut [u8]) -> u64
    ensures { (result ≡ answer_of (panel_of input.now out.old)) × (out.new ≡ out_after input.now out.old (panel_of input.now out.old)) }
{
    answer(panel_lines::panel(input, out))
}

// The lines of a record followed by a trace: a window or a refusal for each event, on a fresh sender with repeat off.
#[unsafe(no_mangle)]
pub extern "C" fn knellstone_trace(input: &[u8], out: &mut [u8]) -> u64
    ensures { (result ≡ answer_of (trace_of input.now out.old)) × (out.new ≡ trace_after input.now out.old (trace_of input.now out.old)) }
{
    answer(trace_lines::trace(input, out))
}

// Answers in turn, in one call, and writes the record after the last; all are taken, or none.
#[unsafe(no_mangle)]
pub extern "C" fn knellstone_answers(held: &[u8], list: &[u8], out: &mut [u8]) -> u64
    ensures { (result ≡ answer_of (written_of (answers_in held.now list.now) out.old)) × (out.new ≡ record_after (answers_in held.now list.now) out.old) }
{
    answer(host_answers::answers(held, list, out))
}

// The actions whose scores the trainer of a record asks for in a row.
#[unsafe(no_mangle)]
pub extern "C" fn knellstone_asked(held: &[u8], out: &mut [u8]) -> u64
    ensures { (result ≡ answer_of (row_in (load_of held.now) out.old)) × (out.new ≡ row_after (load_of held.now) out.old) }
{
    answer(host_lists::asked(held, out))
}

// All candidates of an action.
#[unsafe(no_mangle)]
pub extern "C" fn knellstone_candidates(settings: &[u8], action: &[u8], out: &mut [u8]) -> u64
    ensures { (result ≡ answer_of (candidates_in settings.now action.now out.old)) × (out.new ≡ candidates_after settings.now action.now out.old) }
{
    answer(host_lists::candidates(settings, action, out))
}

// 1 where the trees of two records are equal, else 0.
#[unsafe(no_mangle)]
pub extern "C" fn knellstone_equal(a: &[u8], b: &[u8]) -> u64
    ensures { result ≡ answer_of (equal_in (load_of a.now) (load_of b.now)) }
{
    answer(host_lists::equal(a, b))
}

// The split list after another among those of at most n splits.
#[unsafe(no_mangle)]
pub extern "C" fn knellstone_next_list(n: u32, list: &[u8], out: &mut [u8]) -> u64
    ensures { (result ≡ answer_of (next_list_in n list.now out.old)) × (out.new ≡ next_list_after n list.now out.old) }
{
    answer(host_trees::next_list(n, list, out))
}

// The row of the even tree that holds a point; 64 where none does.
#[unsafe(no_mangle)]
pub extern "C" fn knellstone_even_row(point: &[u8]) -> u64
    ensures { result ≡ answer_of (even_row_in point.now) }
{
    answer(host_trees::even_row(point))
}

// The leaves of a record's tree that some point within ranges reaches.
#[unsafe(no_mangle)]
pub extern "C" fn knellstone_ranges(held: &[u8], ranges: &[u8], out: &mut [u8]) -> u64
    ensures { (result ≡ answer_of (within_in held.now ranges.now out.old)) × (out.new ≡ within_after held.now ranges.now out.old) }
{
    answer(host_memory::leaves_within(held, ranges, out))
}

// What each point finds in a record's tree, and how many cubes were tested for it.
#[unsafe(no_mangle)]
pub extern "C" fn knellstone_lookup_tested(held: &[u8], points: &[u8], out: &mut [u8]) -> u64
    ensures { (result ≡ answer_of (tested_in held.now points.now out.old)) × (out.new ≡ tested_after held.now points.now out.old) }
{
    answer(host_memory::lookup_tested(held, points, out))
}

// A generator's output, and its state after the step.
#[unsafe(no_mangle)]
pub extern "C" fn knellstone_step(generator: &mut [u8], out: &mut [u8]) -> u64
    ensures { (result ≡ answer_of (step_in generator.old out.old)) × ((generator.new ≡ step_left generator.old out.old) × (out.new ≡ output_left generator.old out.old)) }
{
    answer(host_draws::step(generator, out))
}

// A generator's state before a step.
#[unsafe(no_mangle)]
pub extern "C" fn knellstone_step_back(generator: &mut [u8]) -> u64
    ensures { (result ≡ answer_of (back_in generator.old)) × (generator.new ≡ back_left generator.old) }
{
    answer(host_draws::step_back(generator))
}

// Acks, sends and ticks in turn, as knellstone_events makes them, with the draws of a generator.
#[unsafe(no_mangle)]
pub extern "C" fn knellstone_own_events(
    held: &[u8],
    sender: &mut [u8],
    generator: &mut [u8],
    list: &[u8],
    out: &mut [u8],
) -> u64
    ensures { (result ≡ answer_of (own_in held.now sender.old generator.old list.now out.old)) × ((sender.new ≡ own_sender held.now sender.old generator.old list.now out.old) × ((generator.new ≡ own_generator held.now sender.old generator.old list.now out.old) × (out.new ≡ own_out_of held.now sender.old generator.old list.now out.old))) }
{
    answer(host_draws::own_events(held, sender, generator, list, out))
}
