// Room that may be too small: what lies past its end is not written.
ghost use Rattle.std.specs.Prelude.{◌≡◌, set};

// Puts a value into its place, if there is room for it.
pub(crate) fn put<T: Copy>(room: &mut [T], i: u64, v: T)
    ensures { room.new ≡ set room.old i v }
{
    let at = i as usize;
    if at < room.len() {
        room[at] = v;
    }
}
