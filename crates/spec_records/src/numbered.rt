//! Lists whose items are numbered from 1.
ghost use Rattle.std.specs.Prelude.{◌≡◌, ◌+◌, ◌<◌, IfNone, IfSome, None, length};
ghost use Rattle.std.specs.Option.{option_copied};
ghost use Rattle.dk_base.specs.ByNumber.{at_number};

/// The item of a number, if there is one.
pub fn numbered_item<T>(items: &[T], number: u32) -> Option<&T>
    ensures { option_copied result ≡ at_number items.now number }
{
    if number == 0 {
        None
    } else {
        items.get(number as usize - 1)
    }
}

/// The place of the item of a number, if there is one.
pub fn place_of<T>(items: &[T], number: u32) -> Option<usize>
    ensures some { IfSome result (λ i. (i + 1 ≡ number) × (i < length items.now)) }
    ensures none { IfNone result (at_number items.now number ≡ None) }
{
    if number == 0 || number as usize > items.len() {
        return None;
    }
    Some(number as usize - 1)
}
