//! The members of a line.
ghost use Rattle.std.specs.Prelude.{◌≡◌};
ghost use Rattle.pp_core.specs.Words.{member_word};

/// A member of a line, which a fault names.
#[derive(Clone, Copy, Debug, PartialEq, Eq)]
pub enum Member {
    Run,
    Style,
    Objects,
    Name,
    Kind,
    Step,
    Tx,
    Thread,
    Id,
    On,
    Call,
    Args,
    /// The member `result`.
    Answer,
    Source,
    Start,
    Ops,
}

impl Member {
    /// Its name, as it is in a line.
    pub fn word(self) -> &'static str
        ensures { result.now ≡ member_word self }
    {
        match self {
            Member::Run => "run",
            Member::Style => "style",
            Member::Objects => "objects",
            Member::Name => "name",
            Member::Kind => "kind",
            Member::Step => "step",
            Member::Tx => "tx",
            Member::Thread => "thread",
            Member::Id => "id",
            Member::On => "on",
            Member::Call => "call",
            Member::Args => "args",
            Member::Answer => "result",
            Member::Source => "source",
            Member::Start => "start",
            Member::Ops => "ops",
        }
    }
}
