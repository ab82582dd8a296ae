// Whether lines tell the holders of the conversations of a record, and a reading spells their keys as those of their
// holders.
ghost use Rattle.std.specs.Prelude.{◌≡◌, ◌↔◌, map, IfOk, reverse, true};
ghost use Rattle.auth_tables.specs.Keys.{key_of};
ghost use Rattle.clean_runs.specs.Labels.{Labelling};
ghost use Rattle.clean_runs.specs.Runs.{role_by};
ghost use Rattle.symbolic_runs.specs.Answers.{atoms_of};
ghost use Rattle.trace_labels.specs.Said.{said};
ghost use Rattle.trace_runs.specs.Holders.{ReadsHolders, TellsHolders, reads_noted, reads_start};
ghost use Rattle.trace_runs.specs.Readings.{holder_in};
ghost use Rattle.wire_histories.specs.Legal as legal;
ghost use Rattle.wire_histories.specs.Noted.{IsNotedOf};

use crate::readings::holder_of;
use crate::tables::reads_found;
use symbolic_runs::Reading;
use trace_labels::LabelLine;
use wire_base::NoMemory;
use wire_histories::{Protocol, Role, Setting, Step};

/// Whether a line tells the holder of each conversation that keeps a key, and the reading spells this key as that of its
/// holder: of a mail client the password. The steps are in the order in which the record was made.
pub fn reads_holders(
    reading: &Reading,
    lines: &[LabelLine],
    setting: &Setting,
    steps: &[Step],
) -> Result<bool, NoMemory>
    ensures { IfOk result (λ so. (z : legal.Setting) (l : Labelling) → IsNotedOf z setting.now
        → TellsHolders (map said lines.now) l → (so ≡ true)
        ↔ ReadsHolders (atoms_of reading.now) (map said lines.now) z l (reverse steps.now)) }
{
    for step in steps {
        if !reads_start(reading, lines, setting, step)? {
            return Ok(false);
        }
    }
    Ok(true)
}

fn reads_start(
    reading: &Reading,
    lines: &[LabelLine],
    setting: &Setting,
    step: &Step,
) -> Result<bool, NoMemory>
    ensures { IfOk result (λ so. so
        ≡ reads_start (atoms_of reading.now) (map said lines.now) setting.now step.now) }
{
    match step {
        Step::Start {
            conv,
            protocol,
            role,
            ..
        } => reads_noted(reading, lines, setting, conv.as_slice(), *protocol, *role),
        Step::Out { .. }
        | Step::In { .. }
        | Step::Ask { .. }
        | Step::Heard { .. }
        | Step::Unheard { .. }
        | Step::Accept { .. }
        | Step::Fail { .. }
        | Step::Reply { .. }
        | Step::Refused { .. }
        | Step::AsGot { .. }
        | Step::AsGave { .. }
        | Step::AsEnd { .. }
        | Step::Restart { .. }
        | Step::Reload => Ok(true),
    }
}

fn reads_noted(
    reading: &Reading,
    lines: &[LabelLine],
    setting: &Setting,
    conv: &[u8],
    protocol: Protocol,
    role: Role,
) -> Result<bool, NoMemory>
    ensures { IfOk result (λ so. so ≡ reads_noted (atoms_of reading.now) (role_by protocol role)
        (holder_in conv.now (map said lines.now)) (key_of conv.now setting.now.keys)) }
{
    let Some(key) = setting.key_of(conv) else {
        return Ok(true);
    };
    let Some(holder) = holder_of(lines, conv) else {
        return Ok(false);
    };
    let password = setting.password_of(conv);
    Ok(reads_found(reading, protocol, role, holder.copy()?, &key, password))
}
