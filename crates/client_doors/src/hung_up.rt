// The clients that were hung up, and the line that tells how many.
ghost use Rattle.std.specs.Prelude.{◌≡◌, IfOk, string_bytes};
ghost use Rattle.client_doors.specs.Lines.{hung_up_line, many_hung_up, one_hung_up};

use std::alloc::Global;
use std::io::Eprint;
use std::time::{Clock, Duration, Instant};
use wire_base::NoMemory;

/// How many seconds nothing is told after a line.
const SILENCE: u64 = 60;

/// How many clients were hung up since that was told, and when it was.
#[derive(Drop)]
pub struct HungUp {
    alloc: Global,
    name: String,
    count: u64,
    told: Option<Instant>,
}

impl HungUp {
    /// None, in a program of this name.
    pub fn new(alloc: Global, name: String) -> HungUp {
        HungUp {
            alloc,
            name,
            count: 0,
            told: None,
        }
    }

    /// One more.
    pub fn count_one(&mut self) {
        self.count = self.count.saturating_add(1);
    }

    /// Tells on standard error how many they are, unless there are none, or it told so a short time ago.
    pub fn tell<R: Clock + Eprint>(&mut self, rt: &R) {
        if self.count == 0 {
            return;
        }
        let Ok(now) = Instant::now(rt) else {
            return;
        };
        if let Some(told) = self.told
            && now.duration_since(told) < Duration::from_secs(SILENCE)
        {
            return;
        }
        if let Ok(line) = hung_up_line(self.alloc, self.name.as_str(), self.count) {
            let _ = rt.eprint(line.as_str());
            self.count = 0;
            self.told = Some(now);
        }
    }
}

fn one_hung_up(alloc: Global, name: &str) -> Result<String, NoMemory>
    ensures { IfOk result (λ line. string_bytes line ≡ one_hung_up name.now) }
{
    Ok(format!(in alloc; "{name}: 1 client hung up: too many at once, or of one address\n")?)
}

fn many_hung_up(alloc: Global, name: &str, count: u64) -> Result<String, NoMemory>
    ensures { IfOk result (λ line. string_bytes line ≡ many_hung_up name.now count) }
{
    Ok(format!(in alloc; "{name}: {count} clients hung up: too many at once, or of one address\n")?)
}

// The line that so many clients were hung up.
fn hung_up_line(alloc: Global, name: &str, count: u64) -> Result<String, NoMemory>
    ensures { IfOk result (λ line. string_bytes line ≡ hung_up_line name.now count) }
{
    if count == 1 {
        one_hung_up(alloc, name)
    } else {
        many_hung_up(alloc, name, count)
    }
}
