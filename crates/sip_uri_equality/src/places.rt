ghost use Rattle.std.specs.Prelude.{◌≡◌, length};
ghost use Rattle.sip_uri_equality.specs.Order.{those_of};

/// So few parameters or headers are as well compared each with each.
pub(crate) const FEW: usize = 16;

/// Places for so many are made in little time, and take two kilobytes of the stack.
pub(crate) const SOME: usize = 256;

/// Makes each place refer to the item at its index.
pub(crate) fn refer_to<'a, T>(places: &mut [&'a T], items: &'a [T])
    requires { length places.old ≡ length items.now }
    ensures { those_of places.new ≡ items.now }
{
    for (index, item) in items.iter().enumerate() {
        places[index] = item;
    }
}
