//! A law of the definitions: its body is empty.
ghost use Rattle.pp_cmd_views.specs.Laws.{KeptViewLaw, OneOutputLaw};

/// An input has at most one status and one text. If a committed transaction of an accepted run
/// took nothing back after its last attempt, that attempt has a number. The number is at most the
/// position of the transaction among the committed ones, from 0.
pub fn views_law()
    ensures one { OneOutputLaw }
    ensures kept { KeptViewLaw }
{}
