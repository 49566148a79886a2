//! Walks of transactions through their bodies.
ghost use Rattle.std.specs.Prelude.{◌≡◌, ◌≤◌, [], None, option_map, true, IsOk, IfOk, OnOk, OnErr};
ghost use Rattle.pp_core.specs.declared.limits.TheConstants.{MOST_BODY_NODES};
ghost use Rattle.pp_core.specs.Trees.{tree, nodes, IsWithinLimits};
ghost use Rattle.pp_body.specs.Walks.{last_state, can_go_on, can_end, HasTaken, HasTakenOneMore};
ghost use Rattle.pp_body.specs.Walks.{HasTakenOneLess, TellsBegins, TellsWord, MayTake, MayGoBack};

use crate::moving::shift;
use crate::position::reaches;
use pp_core::{Body, Call, OutOfMemory};
use std::alloc::Global;
use std::marker::Model;

/// The calls that a transaction made so far, against its body.
///
/// It keeps one set of positions in the body for each call. With no body it keeps nothing.
#[derive(Drop)]
pub struct Walk {
    body: Option<Body>,
    reached: Vec<u64>,
}

impl Model for Walk {
    ghost use Rattle.std.specs.Prelude.{option_map};
    ghost use Rattle.pp_core.specs.Trees.{IsWithinLimits, tree};
    ghost use Rattle.pp_body.specs.Walks.{Walked, walked_code};

    ghost Value = { Walked };

    ghost coded = { walked_code };

    ghost view = { λ w. record { body = option_map tree w.body; reached = w.reached.items } };

    ghost invariant = { λ w. IsWithinLimits (option_map tree w.body) };
}

/// The last set, and whether it is the start.
fn last_state_of(reached: &[u64]) -> (u64, bool)
    ensures { result ≡ last_state 0 true reached.now }
{
    match reached {
        [] => (0, true),
        [.., last] => (*last, false),
    }
}

/// Whether some word of the body goes on by the call.
fn goes_on(body: &Body, reached: &[u64], call: &Call) -> bool
    requires { nodes (tree body.now) ≤ MOST_BODY_NODES }
    ensures { result ≡ can_go_on (tree body.now) reached.now call.now }
{
    let (set, entered) = last_state_of(reached);
    let next = shift(body, set, entered, call);
    reaches(true, body, 0, next, false).0
}

/// Whether some word of the body ends here.
fn is_at_end(body: &Body, reached: &[u64]) -> bool
    requires { nodes (tree body.now) ≤ MOST_BODY_NODES }
    ensures { result ≡ can_end (tree body.now) reached.now }
{
    let (set, entered) = last_state_of(reached);
    reaches(false, body, 0, set, entered).0
}

impl Walk {
    /// A walk that has taken no call.
    pub fn start(alloc: Global, body: Option<Body>) -> Result<Walk, OutOfMemory>
        requires { IsWithinLimits (option_map tree body) }
        ensures body { IfOk result (λ w. w.body ≡ option_map tree body) }
        ensures taken { IfOk result (λ w. HasTaken w []) }
        ensures free { IsOk result }
    {
        Ok(Walk {
            body,
            reached: Vec::new(alloc),
        })
    }

    /// Whether the calls taken, followed by this one, begin a word of the body.
    pub fn can(&self, call: &Call) -> bool
        ensures { TellsBegins self.now call.now result }
    {
        match &self.body {
            None => true,
            Some(body) => goes_on(body, &self.reached, call),
        }
    }

    /// Takes a call that may come next. The only error is out of memory, and the walk is then as it
    /// was.
    pub fn follow(&mut self, call: &Call) -> Result<(), OutOfMemory>
        requires { MayTake self.old call.now }
        ensures body { OnOk result (self.new.body ≡ self.old.body) }
        ensures taken { OnOk result (HasTakenOneMore self.old call.now self.new) }
        ensures err { OnErr result (self.new ≡ self.old) }
        ensures free { self.old.body ≡ None → IsOk result }
    {
        if let Some(body) = &self.body {
            let (set, entered) = last_state_of(&self.reached);
            self.reached.push(shift(body, set, entered, call))?;
        }
        Ok(())
    }

    /// Takes the last call back. It takes no memory.
    pub fn retreat(&mut self)
        requires { MayGoBack self.old }
        ensures body { self.new.body ≡ self.old.body }
        ensures taken { HasTakenOneLess self.old self.new }
    {
        let _ = self.reached.pop();
    }

    /// The same as `follow`, but it consumes the walk, which is lost if memory runs out.
    pub fn take(mut self, call: Call) -> Result<Walk, OutOfMemory>
        requires { MayTake self call }
        ensures body { IfOk result (λ w. w.body ≡ self.body) }
        ensures taken { IfOk result (HasTakenOneMore self call) }
        ensures free { self.body ≡ None → IsOk result }
    {
        self.follow(&call)?;
        Ok(self)
    }

    /// The same as `retreat`, but it consumes the walk.
    pub fn back(mut self) -> Walk
        requires { MayGoBack self }
        ensures body { result.body ≡ self.body }
        ensures taken { HasTakenOneLess self result }
    {
        self.retreat();
        self
    }

    /// Whether the calls taken are a word of the body.
    pub fn complete(&self) -> bool
        ensures { TellsWord self.now result }
    {
        match &self.body {
            None => true,
            Some(body) => is_at_end(body, &self.reached),
        }
    }
}
