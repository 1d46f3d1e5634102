// Words of a file, in either order.
ghost use Rattle.std.specs.Prelude.{◌≡◌, ◌+◌, ◌≤◌, length};
ghost use Rattle.file.specs.Format.{word_at, order_of, header_bytes};

use crate::Order;
use crate::format::MARK;

// The word at a place, in an order.
pub(crate) fn word(order: Order, file: &[u8], at: usize) -> u32
    requires { at + 4 ≤ length file.now }
    ensures { result ≡ word_at order file.now at }
{
    let bytes = [file[at], file[at + 1], file[at + 2], file[at + 3]];
    match order {
        Order::Big => u32::from_be_bytes(bytes),
        Order::Little => u32::from_le_bytes(bytes),
    }
}

// The file's own order, which the mark shows.
pub(crate) fn order_of(file: &[u8]) -> Order
    requires { header_bytes ≤ length file.now }
    ensures { result ≡ order_of file.now }
{
    if word(Order::Big, file, 0) == MARK {
        Order::Big
    } else {
        Order::Little
    }
}
