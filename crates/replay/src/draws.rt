// The calls of the generator, and acks with a draw of its own.
use crate::calls::Replay;
use crate::lines::Shown;
use refusal::Refusal;
use wire::inner::read::{float_at, number_at};
use xoshiro::State;

impl Replay {
    // The generator from now on, and its line. One that is refused stays.
    fn keep(&mut self, made: Result<State, Refusal>) -> Result<(), Refusal> {
        self.generator = made?;
        self.out.line(Shown(self.generator));
        Ok(())
    }

    pub(crate) fn seed(&mut self, fields: &[u8]) -> Result<(), Refusal> {
        let s0 = number_at(fields, 0, 8);
        let s1 = number_at(fields, 8, 8);
        let s2 = number_at(fields, 16, 8);
        let s3 = number_at(fields, 24, 8);
        self.keep(State::new(s0, s1, s2, s3))
    }

    pub(crate) fn step(&mut self) -> Result<(), Refusal> {
        let stepped = self.generator.step()?;
        self.out.line(format_args!("output {}", stepped.output));
        self.keep(Ok(stepped.state))
    }

    pub(crate) fn step_back(&mut self) -> Result<(), Refusal> {
        self.keep(self.generator.step_back())
    }

    pub(crate) fn drawn_ack(&mut self, fields: &[u8]) -> Result<(), Refusal> {
        let sent = float_at(fields, 0);
        let received = float_at(fields, 8);
        let tree = self.trainer.tree;
        let drawn = own_draws::ack_received(self.sender, self.generator, tree, sent, received);
        self.generator = drawn.generator;
        self.replied(drawn.reply)
    }
}
