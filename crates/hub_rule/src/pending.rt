//! Whether any work is pending.
ghost use Rattle.std.specs.Prelude.{◌≡◌, ◌<◌};
ghost use Rattle.hub_rule.specs.Rule.{with_pile, saw_empty};

use crate::board::{Board, PENDING, Token};
use crate::rule::FindPending;
use crate::scene::Scene;

/// Reads the pending word. Where it is 0, no work is pending.
pub fn read_pending<S: Scene>(board: &Board<S>, token: &mut Token<S>) -> u64
    requires table { (token.old.table_id ≡ board.now.table_id) × (board.now.table_id.words ≡ 800) }
    ensures same { (token.new.table_id ≡ token.old.table_id) × (token.new.id ≡ token.old.id) }
    ensures none { result ≡ 0 → token.new.me ≡ (with_pile token.old.me.0 (saw_empty token.old.me.0.pile), token.old.me.1) }
    ensures some { 0 < result → token.new.me ≡ token.old.me }
{
    board.load::<FindPending>(token, PENDING)
}
