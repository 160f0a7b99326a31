// The state bytes of the blocks. Each access tests its index; past the end there is a 0, and nothing is written.
ghost use Rattle.std.specs.Prelude.{◌≡◌, get_or, set};

// 01's states. No enum: a lent byte may be any, so that each comparison would first need a TryFrom, no plainer.
pub const UNALLOCATED: u8 = 0;

pub const UNMARKED: u8 = 255;

pub const MARKED: u8 = 254;

pub fn state(st: &[u8], i: usize) -> u8
    ensures { result ≡ get_or st.now i 0 }
{
    st.get(i).copied().unwrap_or(0)
}

pub fn set_state(st: &mut [u8], i: usize, v: u8)
    ensures { st.new ≡ set st.old i v }
{
    if i < st.len() {
        st[i] = v;
    }
}
