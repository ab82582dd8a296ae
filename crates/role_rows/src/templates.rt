// What a role asks of its key, and the templates that name no role.
ghost use Rattle.std.specs.Prelude.{◌≡◌, true};
ghost use Rattle.roles.specs.Starts.{fits_start};

use crate::calls::template_of;
use crate::came::Came;
use crate::play_fault::PlayFault;
use crate::shown::{fault_word, put_template};
use attr_tuples::Tuple;
use roles::{Role, build_asked, fits_start, read_start};
use row_files::{Report, Row};
use std::alloc::Global;
use wire_base::NoMemory;

/// Plays a file of templates.
pub(crate) fn play(
    alloc: Global,
    file: &str,
    rows: &[Row],
    report: &mut Report,
) -> anyhow::Result<()> {
    for row in rows {
        let mut came = Came::new(alloc);
        let played = carry_out(alloc, row, &mut came);
        came.settle(file, row, played, report)?;
    }
    Ok(())
}

fn carry_out(alloc: Global, row: &Row, came: &mut Came) -> Result<(), PlayFault> {
    let template = template_of(alloc, row, 1)?;
    match row.word() {
        b"role" => tell_role(&template, came),
        b"asked" => tell_asked(alloc, &template, false, came),
        b"asked-in-x" => tell_asked(alloc, &template, true, came),
        _ => Err(PlayFault::Row("nothing is to be done")),
    }
}

// Why a template names no role of p9sk1.
fn tell_role(template: &Tuple, came: &mut Came) -> Result<(), PlayFault> {
    match read_start(template) {
        Ok(_) => came.put(b"role".as_slice())?,
        Err(fault) => came.put(fault_word(fault))?,
    }
    Ok(())
}

// What the role asks of its key that a template names.
fn tell_asked(
    alloc: Global,
    template: &Tuple,
    in_x: bool,
    came: &mut Came,
) -> Result<(), PlayFault> {
    if !fits_start(template) {
        return Err(PlayFault::Row("too many attributes"));
    }
    match read_start(template) {
        Ok(role) => {
            let asked = ask(alloc, &role, template, in_x)?;
            put_template(alloc, &asked, came)?;
        }
        Err(fault) => came.put(fault_word(fault))?,
    }
    Ok(())
}

// What is asked in the domain x, or in none.
#[tactic(auto, using(roles::proofs::ValueLemmas::protocol_is_value, roles::proofs::ValueLemmas::x_is_value))]
fn ask(alloc: Global, role: &Role, template: &Tuple, in_x: bool) -> Result<Tuple, NoMemory>
    requires { fits_start template.now ≡ true }
{
    let protocol = b"p9sk1".as_slice();
    if in_x {
        build_asked(alloc, protocol, role, template, Some(b"x".as_slice()))
    } else {
        build_asked(alloc, protocol, role, template, None)
    }
}
