// Whether tables are sound. Each block is tested by itself (`blocks`), and each list is walked once (`lists`); `parts` is about
// the phase, the holders and the released marks. The lengths were tested before, so that a word of a block or a list is read
// with no test of its index (`known`). `eager` has what the choice of eager sweeping asks beyond that.
pub(crate) mod blocks;
pub(crate) mod eager;
pub(crate) mod known;
pub(crate) mod lists;
mod parts;

ghost use Rattle.std.specs.Prelude.{◌≡◌, true, List, ℕ};
ghost use Rattle.model.specs.Tables.{view, tables_of};
ghost use Rattle.model.specs.Classes.{classes_fit};
ghost use Rattle.model.specs.Sound.{sound};

use crate::classes;
use crate::sound::blocks::Blocks;
use crate::sound::known::Lent;
use crate::sound::lists::Lists;

pub(crate) fn sound<'a>(lent: &'a Lent<'a>) -> bool
    requires { classes_fit lent.now.space.now.p ≡ true }
    ensures { (m : List ℕ) → result ≡ sound lent.now.space.now.p (tables_of (view lent.now.words.now) lent.now.states.now m) }
{
    if !parts::marks_fit(lent.words) {
        return false;
    }
    let lists = Lists::new(lent);
    if !parts::lists_fit(&lists) {
        return false;
    }
    let classes = &classes::class_sizes(lent.space);
    let Some(unused) = (Blocks { lent, classes }).unused() else {
        return false;
    };
    lists.passes() == Some(unused)
}
