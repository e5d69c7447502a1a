#![tactic(auto)]
// Rule 20 by order: a record that is alike to its predecessor in an order repeats it.
ghost use Rattle.std.specs.Prelude.{◌≡◌, ◌-◌, ◌<◌};
ghost use Rattle.ordering.specs.Cells.{cell_at, RoomAt};
ghost use Rattle.ordering.specs.Ids.{alike, ArrangedBy};
ghost use Rattle.repeats.specs.Repeats.{Marking};

use ordering::Order;

// Is the record in cell k alike to the one in the cell before it?
fn is_repeat(order: Order, s: &[u8], t: &[i32], k: usize) -> bool
    requires { RoomAt order.cell order.width k t.now × (0 < k) }
    ensures { result ≡ alike order.by s.now t.now order.width (cell_at order.cell t.now order.width (k - 1)) (cell_at order.cell t.now order.width k) }
{
    let x = order.get(t, k - 1);
    let y = order.get(t, k);
    order.is_alike(s, t, x, y)
}

// Mark f of each of n records that is alike to an earlier one, by an order that their table keeps.
pub fn mark_repeats(order: Order, s: &[u8], t: &[i32], n: usize, f: usize, m: &mut [u16])
    requires { ArrangedBy order.by s.now order.cell order.width n t.now × (f < 16) }
    ensures { Marking order.by s.now t.now order.width n f m.old m.new }
{
    for k in 2..=n {
        if is_repeat(order, s, t, k) {
            marks::mark(m, f, order.get(t, k));
        }
    }
}
