// The questions for the authentication server that stand.
ghost use Rattle.std.specs.Prelude.{◌≡◌, ◌==◌, not, filter, find, map, option_copied, option_map, position};
ghost use Rattle.agent_history.specs.Conversations.{hand_first};
ghost use Rattle.agent_talks.specs.Kept.{question_of};

/// A question that stands: its number, its conversation, and whether it was handed out.
#[derive(Clone, Copy, Debug)]
pub struct Question {
    pub call: u64,
    pub conv: u64,
    pub handed: bool,
}

/// The first of a number.
fn find_call(questions: &[Question], call: u64) -> Option<&Question>
    ensures { option_copied result ≡ find (λ q. q.call == call) questions.now }
{
    questions.iter().find(|question| question.call == call)
}

/// Its conversation.
pub(crate) fn find_asker(questions: &[Question], call: u64) -> Option<u64>
    ensures { result ≡ option_map (λ q. q.conv) (find (λ q. q.call == call) questions.now) }
{
    match find_call(questions, call) {
        Some(question) => Some(question.conv),
        None => None,
    }
}

/// The first that wasn't handed out.
pub(crate) fn find_next(questions: &[Question]) -> Option<&Question>
    ensures { option_copied result ≡ find (λ q. not q.handed) questions.now }
{
    questions.iter().find(|question| !question.handed)
}

fn find_place(questions: &[Question]) -> Option<usize>
    ensures { result ≡ position (λ q. not q.handed) questions.now }
{
    questions.iter().position(|question| !question.handed)
}

/// It is handed out.
pub(crate) fn hand_first(questions: &mut [Question])
    ensures { map question_of questions.new ≡ hand_first (map question_of questions.old) }
{
    match find_place(questions) {
        Some(at) => questions[at].handed = true,
        None => {}
    }
}

/// Those of a conversation are dropped.
pub(crate) fn drop_conv(questions: &mut Vec<Question>, conv: u64)
    ensures { questions.new.items ≡ filter (λ q. not (q.conv == conv)) questions.old.items }
{
    questions.retain(|question| question.conv != conv);
}
