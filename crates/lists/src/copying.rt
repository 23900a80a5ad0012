// One list copied over another.
ghost use Rattle.std.specs.Prelude.{◌≡◌};
ghost use Rattle.lists.specs.Copying.{overwritten};

// Each number over the one at its place, where the two lists are as long; otherwise `to` stays.
pub fn copy(from: &[u16], to: &mut [u16])
    ensures lent { to.new ≡ overwritten from.now to.old }
{
    if to.len() == from.len() {
        to.copy_from_slice(from);
    }
}
