// The layout's rules for one reading of a list, on any bytes.
ghost use Rattle.std.specs.Prelude.{◌≡◌};
ghost use Rattle.state.specs.Check.{slot_right, SlotReady};

// The reading i: its top is below `cells`, its height is from 1 to 64, and down the parent links the heights fall by one to 1.
#[tactic(auto, using(crate::proofs::Checking::slot_ways))]
pub fn slot_right(buffer: &[u8], cells: u16, states: u16, at: usize, i: u16) -> bool
    requires { SlotReady buffer.now cells at i }
    ensures { result ≡ slot_right cells states buffer.now at i }
{
    let slot = crate::get_slot(buffer, at, i);
    if slot.top.0 >= cells {
        return false;
    }
    let x = cells::get_cell(buffer, slot.top);
    if x.height == 0 {
        return false;
    }
    if x.height > meaning::MAX_HEIGHT {
        return false;
    }
    cells::linked_from(buffer, cells, states, x.height, slot.top)
}
