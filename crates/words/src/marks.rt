// Mark bits by shift and mask: bit g is bit g mod 8 of byte g / 8, lowest bit first.
ghost use Rattle.std.specs.Prelude.{◌≡◌, ◌/◌, ◌%◌, ◌<◌, length, get_or, set};
ghost use Rattle.model.specs.Memory.{bit_of, set_bit, cleared};
ghost use Rattle.words.specs.Bits.{clear_bit};

// Mark bit g, whose byte is known to be there.
fn bit(m: &[u8], g: usize) -> bool
    requires { g / 8 < length m.now }
    ensures { result ≡ bit_of (get_or m.now (g / 8) 0) (g % 8) }
{
    (m[g / 8] >> (g % 8)) & 1 == 1
}

pub fn test(m: &[u8], g: usize) -> bool
    ensures { result ≡ bit_of (get_or m.now (g / 8) 0) (g % 8) }
{
    g / 8 < m.len() && bit(m, g)
}

// Two functions that write, since one would be no plainer: their one difference, `|=` and `&= !`, would be a closure longer than what
// they share.
pub fn set_bit(m: &mut [u8], g: usize)
    ensures { m.new ≡ set m.old (g / 8) (set_bit (get_or m.old (g / 8) 0) (g % 8)) }
{
    let i = g / 8;
    if i < m.len() {
        m[i] |= 1 << (g % 8);
    }
}

pub fn clear_bit(m: &mut [u8], g: usize)
    ensures { m.new ≡ set m.old (g / 8) (clear_bit (get_or m.old (g / 8) 0) (g % 8)) }
{
    let i = g / 8;
    if i < m.len() {
        m[i] &= !(1 << (g % 8));
    }
}

pub fn clear_all(m: &mut [u8])
    ensures { m.new ≡ cleared m.old }
{
    m.fill(0);
}
