// Table words as they travel: 8 bytes each, low byte first.
ghost use Rattle.std.specs.Prelude.{◌≡◌, ◌*◌, ◌≤◌, false, true, length, MatchOption};
ghost use Rattle.model.specs.Memory.{overwrite};
ghost use Rattle.model.specs.Exports.{decoded, encoded, words_from};
ghost use Rattle.model.specs.RunCalls.{whole_words};

use words::bytes;

const WORD_BYTES: usize = 8;

// The words w, from their bytes b. A slice of arrays beside `w.iter_mut()` (tried) left open what the words are after the loop.
#[tactic(auto, using(crate::proofs::Coding::decode_end))]
fn load(b: &[u8], w: &mut [usize])
    ensures { w.new ≡ words_from (length w.old) b.now 0 }
{
    for (i, word) in w.iter_mut().enumerate() {
        *word = bytes::load_word(b, WORD_BYTES * i);
    }
}

// The words that these bytes make, in the room for them; none if the last is cut short, or if there are more than there is room for.
#[tactic(auto, unfolding(model::specs::RunCalls::whole_words, model::specs::Exports::decoded))]
pub fn decode<'a>(b: &[u8], room: &'a mut [usize]) -> Option<&'a mut [usize]>
    ensures { MatchOption result (whole_words (length b.now) (length room.old) ≡ false) (λ w. (whole_words (length b.now) (length room.old) ≡ true) × (w.now ≡ decoded b.now)) }
{
    let len = b.len();
    if len % WORD_BYTES != 0 {
        return None;
    }
    let w = room.get_mut(..len / WORD_BYTES)?;
    load(b, w);
    Some(w)
}

// The bytes of the words, from b's beginning, as far as it has room.
#[tactic(auto, using(crate::proofs::Coding::encode_round, laws::proofs::Memory::overwrite_nil), unfolding(model::specs::Exports::encoded))]
pub fn encode(b: &mut [u8], w: &[usize])
    ensures { b.new ≡ overwrite 0 (encoded w.now) b.old }
{
    for (k, word) in w.iter().enumerate() {
        bytes::store_word(b, WORD_BYTES * k, *word);
    }
}
