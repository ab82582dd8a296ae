// The public calls of `side_files`.
ghost use Rattle.std.specs.Prelude.{◌≡◌, ◌-◌, ◌<◌, ◌+◌, ◌^◌, IfOk, OnOk, OnErr, None, Some, IfErr};
ghost use Rattle.side_files.specs.Decimals.{number_of};
ghost use Rattle.side_files.specs.Logs.{pushed};
ghost use Rattle.side_files.specs.Questions.{asker_of, next_line, asked_by, replied, withdrawn, first_conv, standing};
ghost use Rattle.side_files.specs.Reading.{question_of};
ghost use Rattle.side_files.specs.Replies.{reply_of};

use side_files::{LogRing, Prompts, Question, Reply, UnknownTag};
use std::alloc::Global;
use wire_base::{Bytes, NoMemory};

/// As `parse_decimal`.
pub fn parse_decimal(text: &[u8]) -> Option<u64>
    ensures { result ≡ number_of text.now }
{
    side_files::parse_decimal(text)
}

/// As `Prompts::asker`.
pub fn prompts_asker(prompts: &Prompts, tag: u64) -> Option<u64>
    ensures { result ≡ asker_of tag prompts.now }
{
    prompts.asker(tag)
}

/// As `Prompts::ask`.
pub fn prompts_ask(prompts: &mut Prompts, conv: u64, about: &[u8]) -> Result<u64, NoMemory>
    requires { prompts.old.asked < 2 ^ 64 - 1 }
    ensures tag { IfOk result (λ tag. tag ≡ prompts.old.asked + 1) }
    ensures ok { OnOk result (prompts.new
        ≡ asked_by conv (next_line prompts.old about.now) prompts.old) }
    ensures err { OnErr result (prompts.new ≡ prompts.old) }
{
    prompts.ask(conv, about)
}

/// As `Prompts::reply`.
pub fn prompts_reply(prompts: &mut Prompts, tag: u64) -> Result<u64, UnknownTag>
    ensures known { IfOk result (λ conv. asker_of tag prompts.old ≡ Some conv) }
    ensures unknown { IfErr result (λ _. asker_of tag prompts.old ≡ None) }
    ensures questions { prompts.new ≡ replied tag prompts.old }
{
    prompts.reply(tag)
}

/// As `Prompts::withdraw`.
pub fn prompts_withdraw(prompts: &mut Prompts, conv: u64)
    ensures { prompts.new ≡ withdrawn conv prompts.old }
{
    prompts.withdraw(conv)
}

/// As `Prompts::first_asker`.
pub fn prompts_first_asker(prompts: &Prompts) -> Option<u64>
    ensures { result ≡ first_conv (standing prompts.now) }
{
    prompts.first_asker()
}

/// As `parse_question`.
pub fn parse_question(alloc: Global, line: &[u8]) -> Result<Option<Question>, NoMemory>
    ensures { IfOk result (λ question. question ≡ question_of line.now) }
{
    side_files::parse_question(alloc, line)
}

/// As `parse_reply`.
pub fn parse_reply(alloc: Global, text: &[u8]) -> Result<Option<Reply>, NoMemory>
    ensures { IfOk result (λ reply. reply ≡ reply_of text.now) }
{
    side_files::parse_reply(alloc, text)
}

/// As `LogRing::push`.
pub fn log_ring_push(log_ring: &mut LogRing, line: Bytes)
    ensures { log_ring.new ≡ pushed line log_ring.old }
{
    log_ring.push(line)
}
