//! Lists whose items are numbered from 1.
ghost use Rattle.std.specs.Prelude.{◌≡◌, ◌+◌, ◌<◌, IfNone, IfSome, None, length};
ghost use Rattle.dk_base.specs.ByNumber.{at_number, with_at_number};

/// The place of the item of a number, if there is one.
pub fn place_of<T>(items: &[T], number: u32) -> Option<usize>
    ensures some { IfSome result (λ i. (i + 1 ≡ number) × (i < length items.now)) }
    ensures none { IfNone result (at_number items.now number ≡ None) }
    ensures outside { IfNone result ((x : T) → with_at_number items.now number x ≡ items.now) }
{
    if number == 0 || number as usize > items.len() {
        return None;
    }
    Some(number as usize - 1)
}
