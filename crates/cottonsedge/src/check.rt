// Whether lent bytes are sound tables.
ghost use Rattle.std.specs.Prelude.{◌≡◌};
ghost use Rattle.cottonsedge.specs.Entries.{check_answer};

use rules::Refusal;
use soundness::check::is_sound;

// 0, or 15 if the tables lent aren't sound, or are too short or too long: a number, as C has it.
#[tactic(auto, unfolding(crate::specs::Entries::check_answer))]
pub fn cottonsedge_check(tables: &[u8]) -> u8
    ensures { result ≡ check_answer tables.now }
{
    if is_sound(tables) {
        0
    } else {
        Refusal::NotSound.into()
    }
}
