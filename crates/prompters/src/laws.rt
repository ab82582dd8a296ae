// Laws of the definitions, each the contract of a function that does nothing.
ghost use Rattle.std.specs.Prelude.{◌≡◌, ◌<◌, ◌≤◌, ℕ, List, length};
ghost use Rattle.side_files.specs.declared.question.Question.{Question};
ghost use Rattle.prompters.specs.declared.prompter.Say.TheVariants.{Yes, No};
ghost use Rattle.prompters.specs.Chains.{after_answers, word_of};
ghost use Rattle.prompters.specs.Simple.{consenting};
ghost use Rattle.prompters.specs.Wanted.{OneReadUnderWay};

/// Prompters that consent so often say yes to so many questions, whatever they are about, and no to every later one.
pub fn consent_is_given_so_often()
    ensures first { (consents : ℕ) (older : List Question) (q : Question) → length older < consents
        → word_of q (after_answers older (consenting consents)) ≡ Yes }
    ensures later { (consents : ℕ) (older : List Question) (q : Question) → consents ≤ length older
        → word_of q (after_answers older (consenting consents)) ≡ No }
{}

/// Of what a program that answers for its user asks for, one read of each file has no reply yet, under the file's own tag, which
/// no other request has. So a reply of that tag is the reply to it.
pub fn one_read_of_a_file_is_under_way()
    ensures { OneReadUnderWay }
{}
