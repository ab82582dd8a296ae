// Laws of an agent, each the contract of a function that does nothing.
ghost use Rattle.driven_agents.specs.Driven.{OpeningsChangeNone, TakesChangeNone};
ghost use Rattle.driven_agents.specs.Keys.{KeysAreKeys, ToldRingKeys};
ghost use Rattle.driven_agents.specs.Quiet.{AskForNoKey, AskNoConsent, ClosingsChangeNone, NodesNameNoLines, NodesOpenNoLines, WritesStartNone};

/// The keys of an agent are tuples that break no rule of keys.
pub fn keys_break_no_rule()
    ensures { KeysAreKeys }
{}

/// Each key that a conversation is told is such as a ring has.
pub fn conversations_are_told_keys_of_a_ring()
    ensures { ToldRingKeys }
{}

/// The takes of replies and of questions that follow an event change no conversation.
pub fn takes_change_no_conversation()
    ensures { TakesChangeNone }
{}

/// Nor does a fid that comes to name rpc and is opened.
pub fn openings_change_no_conversation()
    ensures { OpeningsChangeNone }
{}

/// Where no fid ever came to name a file of lines, a write leaves with what each conversation was started, and what its role
/// met since.
pub fn writes_start_no_conversation()
    ensures { WritesStartNone }
{}

/// Where none did, a closing changes no conversation.
pub fn closings_change_no_conversation()
    ensures { ClosingsChangeNone }
{}

/// No fid of a node of a network ever comes to name a file of lines.
pub fn nodes_name_no_files_of_lines()
    ensures { NodesNameNoLines }
{}

/// So nobody has one open there, and no search comes to a question for a user.
pub fn searches_of_nodes_ask_nobody()
    ensures holders { NodesOpenNoLines }
    ensures consent { AskNoConsent }
    ensures key { AskForNoKey }
{}
