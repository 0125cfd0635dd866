// The one store of a step, from what a page's rule leaves to be stored.
#![tactic(auto)]

ghost use Rattle.std.specs.Prelude.{◌≡◌};
ghost use Rattle.steps.specs.Stores.{write_of};

use board::Region;
use pages::Store;
use steps::Write;

#[tactic(auto, unfolding(steps::specs::Stores::write_of), using(board::specs::RegionLaws::moves))]
pub fn write_of(store: Store, region: Region, cnf: u8, address: u32, cursor: u16) -> Write
    ensures { result ≡ write_of store region cnf address cursor }
{
    match store {
        Store::Nothing => Write::Nothing,
        Store::Word(word) => Write::Data(address, word),
        Store::Move(word) => {
            if regions::move_allowed(region, cnf, address) {
                Write::Data(address + 1, word)
            } else {
                Write::Nothing
            }
        }
        Store::Sent(word) => Write::Sent(cursor, word),
    }
}
