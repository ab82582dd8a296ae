// Tuples merged.
ghost use Rattle.std.specs.Prelude.{◌≡◌, ◌<◌, Err, filter, length};
ghost use Rattle.attr_tuples.specs.Merging.{is_new, merged, Merges};
ghost use Rattle.attr_tuples.specs.declared.fault.MergeFault.TheVariants.{TooMany};

use crate::attr::Attr;
use crate::compare::has_name;
use crate::fault::MergeFault;
use crate::tuple::{MOST_ATTRIBUTES, Tuple};

/// The attributes of `a`, and behind them those of `b` whose names `a` lacks.
pub fn merge(a: &Tuple, b: &Tuple) -> Result<Tuple, MergeFault>
    ensures answer { Merges result a.now b.now }

    // More than 36 are refused before memory is taken.
    ensures refused { 36 < length (merged a.now b.now) → result ≡ Err TooMany }
{
    if count_new(a.attrs(), b.attrs()) > MOST_ATTRIBUTES - a.attrs().len() {
        return Err(MergeFault::TooMany);
    }
    let mut list = a.copy()?.into_vec();
    for attr in b.attrs() {
        if !has_name(a.attrs(), attr.name.as_slice()) {
            list.push(attr.copy()?)?;
        }
    }
    Ok(Tuple::from_vec(list))
}

// How many attributes of `b` have a name that `a` lacks.
fn count_new(a: &[Attr], b: &[Attr]) -> usize
    ensures { result ≡ length (filter (is_new a.now) b.now) }
{
    b.iter()
        .filter(|attr| !has_name(a, attr.name.as_slice()))
        .count()
}
