// A map with a bit for each number. Neighbouring numbers have their bits in different words, so that one need not wait for the other.
ghost use Rattle.std.specs.Prelude.{◌≡◌, ◌*◌, ◌<◌, length};
ghost use Rattle.book_sound_law.specs.code.Marks.{word_for, has_mark, with_mark};

// Marks a number and answers whether it was marked already.
pub fn mark(map: &mut [u64], x: u64) -> bool
    requires { word_for x < length map.old }
    ensures { (result ≡ has_mark map.old x) × (map.new ≡ with_mark map.old x) }
{
    let at = (x / 1024 * 16 + x % 16) as usize;
    let b = x / 16 % 64;
    let w = map[at];
    map[at] = w | (1 << b);
    let v = w >> b;
    v % 2 == 1
}
