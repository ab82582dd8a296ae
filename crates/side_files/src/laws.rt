// Laws of the definitions, each the contract of a function that does nothing.
ghost use Rattle.std.specs.Prelude.{◌≡◌, ◌+◌, ◌-◌, ◌^◌, ◌<◌, ◌≤◌, ◌++◌, ◌==◌, ◌∷◌, [], ℕ, List, Some, None, not, drop, length, true};
ghost use Rattle.std.specs.List.{list_all};
ghost use Rattle.attr_tuples.specs.declared.attr.Attr.{Attr};
ghost use Rattle.attr_tuples.specs.Attributes.{is_tuple};
ghost use Rattle.attr_tuples.specs.Printing.{attr_text, printed_text};
ghost use Rattle.side_files.specs.declared.line.PromptKind.{PromptKind};
ghost use Rattle.side_files.specs.declared.prompt.Asker.{Asker};
ghost use Rattle.side_files.specs.declared.ring.TheConstants.{LOG_LINES};
ghost use Rattle.side_files.specs.Calls.{Call, Asked, LogCall, adding, added, after, asked_under, held, next_tag};
ghost use Rattle.side_files.specs.Lines.{question_line};
ghost use Rattle.side_files.specs.Logs.{newest};
ghost use Rattle.side_files.specs.Questions.{Questions, asker_of, replied, standing, withdrawn};
ghost use Rattle.side_files.specs.Reading.{question, question_of, is_confirm};

/// A later question has a greater tag than an earlier one, whatever was done between them. So no tag is given twice.
pub fn tags_rise()
    ensures tag { (kind : PromptKind) (calls : List Call)
        → (after kind calls).asked + 1 ≡ next_tag calls }
    ensures rise { (conv : ℕ) (about : List ℕ) (before later : List Call)
        → next_tag before < next_tag (later ++ Asked conv about ∷ before) }
{}

/// Whoever is told of the reply to a tag is the conversation that asked under it.
pub fn a_reply_reaches_who_asked()
    ensures { (kind : PromptKind) (calls : List Call) (tag conv : ℕ)
        → asker_of tag (after kind calls) ≡ Some conv → asked_under tag calls ≡ Some conv }
{}

/// A question is replied to once.
pub fn a_question_is_replied_to_once()
    ensures { (tag : ℕ) (questions : Questions) → asker_of tag (replied tag questions) ≡ None }
{}

/// A conversation whose questions were withdrawn has none, read or not.
pub fn a_withdrawn_conversation_has_no_question()
    ensures { (conv : ℕ) (questions : Questions) → list_all (λ (a : Asker). not (a.conv == conv))
        (standing (withdrawn conv questions)) ≡ true }
{}

/// A log holds the newest of all lines that were added, at most 64, in order; and as long as nothing is read, the newest 64
/// of what it held and what was added.
pub fn the_newest_lines_are_held()
    ensures newest { (calls : List LogCall)
        → held calls ≡ drop (length (added calls) - length (held calls)) (added calls) }
    ensures few { (calls : List LogCall) → length (held calls) ≤ LOG_LINES }
    ensures unread { (before : List LogCall) (lines : List (List ℕ))
        → held (adding lines before) ≡ newest (held before ++ lines) }
{}

/// What is asked about a tuple that is printed is read back as it was, also with one more attribute behind it, as a template
/// that is shown has a question for a password.
pub fn questions_are_read_back()
    ensures printed { (kind : PromptKind) (tag : ℕ) (attrs : List Attr) → tag < 2 ^ 64
        → is_tuple attrs ≡ true → 0 < length attrs → length attrs < 36
        → question_of (question_line kind tag (printed_text attrs))
        ≡ Some (question (is_confirm kind) attrs tag) }
    ensures longer { (kind : PromptKind) (tag : ℕ) (attrs : List Attr) (more : Attr)
        → tag < 2 ^ 64 → is_tuple (attrs ++ more ∷ []) ≡ true
        → 0 < length attrs → length attrs < 35
        → question_of (question_line kind tag (printed_text attrs ++ 32 ∷ attr_text more))
        ≡ Some (question (is_confirm kind) (attrs ++ more ∷ []) tag) }
{}
