// New settings for a trainer, out of a host's bytes.
ghost use Rattle.std.specs.Prelude.{◌≡◌};
ghost use Rattle.host_trainer.specs.Changed.{changed_in};

use crate::inner::records;
use refusal::Refusal;
use trainer::Trainer;

#[tactic(auto, unfolding(crate::specs::Changed::changed_in, crate::specs::Changed::changed_by))]
pub fn changed(held: &[u8], settings: &[u8]) -> Result<Trainer, Refusal>
    ensures { result ≡ changed_in held.now settings.now }
{
    let t = record::load(held)?;
    let s = records::settings_of(settings)?;
    t.change_settings(s)
}
