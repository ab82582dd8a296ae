// The public calls of `des_block`.
ghost use Rattle.std.specs.Prelude.{◌≡◌};
ghost use Rattle.des_block.specs.Schedule.{deciphered_with, enciphered_with};

use des_block::Schedule;

/// As `Schedule::encrypt`.
pub fn schedule_encrypt(schedule: &Schedule, block: [u8; 8]) -> [u8; 8]
    ensures value { result ≡ enciphered_with schedule.now block }
    ensures undone { deciphered_with schedule.now result ≡ block }
{
    schedule.encrypt(block)
}

/// As `Schedule::decrypt`.
pub fn schedule_decrypt(schedule: &Schedule, block: [u8; 8]) -> [u8; 8]
    ensures value { result ≡ deciphered_with schedule.now block }
    ensures undone { enciphered_with schedule.now result ≡ block }
{
    schedule.decrypt(block)
}
