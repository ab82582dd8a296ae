// Laws of the definitions, each the contract of a function that does nothing.
ghost use Rattle.agent_laws.specs.Sentences.{ActsOnItsConnection, AgreedBetween, ChangesItsOwn, ChosenStays, ChosenStaysWhileItStands, CountsHide, DeedsHide, DropsArePut, DropsComeOnce, DropsFollowChallenges, EditsOrTalks, ErrorChangesNothing, EventLeavesFid, FidStays, FidsHeldAreCounted, FidsHide, FirstIsFound, FirstIsTold, FramesFit, FramesPutOut, FrontStands, GivenAndLeft, GivenInOrder, HolderOpened, HoldersHide, IsOpenOnce, KeysAreTheLines, LeftAfterTake, ListHides, ListedStays, NextsHide, NoAnswerTells, NoneDeletesBySecret, NothingIsPut, OnlyReadsWait, OpenerHolds, OpenersSpeak, OpenersSpeakOnce, OthersChangeNone, OthersFit, OthersLeaveCounts, OthersLeaveFids, OthersLeaveNexts, OthersLeaveSizes, OthersLeaveTexts, OthersRaiseNone, QuestionsAreAsked, QuestionsArePut, QuestionsRise, ReadsArePublic, ReadsStood, ReadsWait, RefusedChangesNothing, RefusedIsTold, RepliesHide, ReplyFits, ReplyIsRead, ReplyIsValid, RequestsRaiseOne, SearchesAreOfTheMoment, SearchesArePublic, SearchesKeysBefore, SettledAreSwept, SettledAreTold, SizesHide, SpeakersAreFew, SpeakersRise, TextsHide, TextsStood, ToldIsAgreed, UsersAreAsked, WaitingReadsAreAsked, WaitsArePublic, WaitsBehind, WriteMakesKeys, WritesAlike, WritesToldAlike, RedactionsArePublic, ReadsAreRedacted, WaitsAreRedacted, LinesAreRedacted, ClosedAsksNobody, NoneAsksConsent, NoneAsksKey, QuestionsFollowSearches, LinesTell};

/// The keys are those of the accepted lines of ctl, in order: of lines that are the same in public the last one alone
/// stands, at its own place, and none that a later line deleted.
pub fn keys_are_the_lines_in_order()
    ensures { KeysAreTheLines }
{}

/// What an event does to fids, to keys by lines of ctl, and to connections is of its own connection; an event that has none
/// does nothing of the kind. Conversations, questions and replies may be of any connection, and a stop is the end of all.
pub fn an_event_changes_its_own_connection()
    ensures own { ChangesItsOwn }
    ensures others { OthersChangeNone }
{}

/// What a request does, its reply aside, is done by deeds of its connection, or by such as are about conversations,
/// questions and replies.
pub fn a_request_acts_on_its_connection()
    ensures { ActsOnItsConnection }
{}

/// What a fid of a connection names stays until a deed that concerns it.
pub fn a_fid_stays_until_a_deed_that_concerns_it()
    ensures by_deeds { FidStays }
    ensures by_events { EventLeavesFid }
{}

/// What happens on other connections changes no fid of this one, nor what it reads of ctl, nor where its next read of a
/// directory may begin, nor how many are held, nor the largest message agreed, unless it stops the agent.
pub fn other_connections_change_no_fid()
    ensures fids { OthersLeaveFids }
    ensures texts { OthersLeaveTexts }
    ensures nexts { OthersLeaveNexts }
    ensures held { OthersLeaveCounts }
    ensures msize { OthersLeaveSizes }
{}

/// The number of fids held is that of the fids that name something: they are some numbers, no two of them equal.
pub fn a_fid_held_counts()
    ensures { FidsHeldAreCounted }
{}

/// No two fids have a file open at once that is open by one fid at a time, on whatever connections they are: where two
/// fids have it open, they are one fid of one connection. And the fid that has it open is the one that is kept as the
/// file's holder, which decides whether the next open is refused.
pub fn an_exclusive_file_is_open_once()
    ensures once { IsOpenOnce }
    ensures opener_holds { OpenerHolds }
    ensures holder_opened { HolderOpened }
{}

/// What a fid reads of ctl is the list of keys as it stood at one moment, between two events: so is the text that it
/// has, and what a read replies is a piece of such a list. The list that a read from 0 found is the fid's text until
/// the fid reads from 0 again, comes to a file anew or is given up, whatever becomes of the keys.
pub fn ctl_reads_a_list_that_stood()
    ensures texts { TextsStood }
    ensures reads { ReadsStood }
    ensures until_the_next { ListedStays }
{}

/// A request that a test refuses changes nothing, and is replied to by the test's text. Whatever is replied to by an error
/// changes nothing, but for a remove, which gives its fid up, a write, and a read of a conversation.
pub fn a_refused_request_changes_nothing()
    ensures nothing { RefusedChangesNothing }
    ensures told { RefusedIsTold }
    ensures any_error { ErrorChangesNothing }
{}

/// Of the lines of a write of ctl those before the first refused one are carried out, and those behind it aren't; the
/// text told is that of the first refused one. A text is told only where some line was the first refused one.
pub fn lines_stand_before_the_first_refused()
    ensures front { FrontStands }
    ensures told { FirstIsTold }
    ensures found { FirstIsFound }
{}

/// The deeds of a write of ctl make the keys that its lines make of the keys before it.
pub fn a_write_does_what_its_lines_do()
    ensures { WriteMakesKeys }
{}

/// The replies that takes gave on a connection are the first ones of those that the history gave it, each once and in
/// order, and with those that are left they are all. What a take puts out is the frame of its reply.
pub fn a_reply_is_taken_once()
    ensures in_order { GivenInOrder }
    ensures with_the_rest { GivenAndLeft }
    ensures next_after { LeftAfterTake }
    ensures frames { FramesPutOut }
{}

/// A reply fits what was agreed on its connection before its request: it is no longer than the largest message agreed,
/// which is of 256 to 8216 bytes, or than 256 bytes where none is agreed; so no take puts out more than 8216 bytes. None
/// but what a read gives is longer than 256 bytes, so that the reply to a version fits what it agrees too. What such a
/// reply tells of 9P2000 is what is agreed from then on. Whatever deeds were done, the reply to a frame of bytes has a
/// spelling, and that is read as this reply.
pub fn a_reply_fits_what_was_agreed()
    ensures fits { ReplyFits }
    ensures agreed { AgreedBetween }
    ensures frames { FramesFit }
    ensures others { OthersFit }
    ensures told { ToldIsAgreed }
    ensures valid { ReplyIsValid }
    ensures read { ReplyIsRead }
{}

/// The reads of a connection that wait are reads by fids that have rpc or a file of lines open, no two under one tag, of a
/// fid that has rpc open one at most, at most as many as may wait, each for no more bytes than the message agreed holds.
/// Between two events none of them is settled. One that is settled is told, by the file that its fid has open: on rpc the answer
/// of the conversation that the fid has open, on a file of lines its first line, and on either that it may hold too few bytes.
/// A frame has no reply only where it is such a read, and then it waits
/// behind the others, under its tag.
pub fn a_read_waits_for_an_answer_or_a_line()
    ensures waits { ReadsWait }
    ensures swept { SettledAreSwept }
    ensures told { SettledAreTold }
    ensures reads { OnlyReadsWait }
    ensures behind { WaitsBehind }
{}

/// Where a read waits for a fid that has a conversation open, what this conversation waits for is asked for: the authentication
/// server by a question of this conversation that stands, whether it was taken or is there to be taken, or its user by one in
/// confirm or in needkey. Else it is at a search of the keys, and none is left open between two events.
pub fn a_waiting_read_has_its_question()
    ensures { WaitingReadsAreAsked }
{}

/// A conversation stands as long as a fid has rpc open: each such fid of a connection has one, and one alone, and at most
/// as many stand as may. Their numbers rise in the order in which they were opened, so that none is used twice.
pub fn a_conversation_stands_while_rpc_is_open()
    ensures openers { OpenersSpeak }
    ensures once { OpenersSpeakOnce }
    ensures few { SpeakersAreFew }
    ensures numbers { SpeakersRise }
{}

/// Each question for the authentication server is of a conversation that stands and waits for the answer. Their numbers
/// rise in the order in which they were raised, so that none is used twice. Where one is due, a take of a question puts it
/// out, under its number and its conversation's. A request raises one at most, and no other event any, so that a loop of
/// takes and answers ends.
pub fn a_question_is_of_a_conversation_that_waits()
    ensures asked { QuestionsAreAsked }
    ensures numbers { QuestionsRise }
    ensures put { QuestionsArePut }
    ensures one { RequestsRaiseOne }
    ensures others { OthersRaiseNone }
{}

/// A connection to the authentication server that a conversation kept is put out by a take of a question where it is due,
/// and where nothing is due the take says so. It is put out at most once for a conversation, and only for one whose question
/// for a challenge was the last of its questions that were put out.
pub fn a_connection_is_given_up_once()
    ensures put { DropsArePut }
    ensures nothing { NothingIsPut }
    ensures once { DropsComeOnce }
    ensures behind { DropsFollowChallenges }
{}

/// A search finds what is found among the keys of the moment at which it is made. No event both edits keys and lets a
/// conversation meet something, so that these are the keys of the history before its event. The key that a conversation
/// has chosen stays, whatever lines of ctl do to the keys, and as long as the conversation stands it is the same after every
/// later event.
pub fn a_search_is_over_the_keys_of_its_moment()
    ensures searches { SearchesAreOfTheMoment }
    ensures apart { EditsOrTalks }
    ensures before { SearchesKeysBefore }
    ensures chosen { ChosenStays }
    ensures standing { ChosenStaysWhileItStands }
{}

/// What is read of ctl doesn't depend on the value of a secret: deeds that are the same but for the secrets of the keys
/// added have the same text of ctl, the same fids, offsets, holders and largest messages. As long as no conversation was
/// opened and nobody was asked anything they have the same replies to every frame, and deeds after it that are again the
/// same but for secrets. No keys were ever deleted by the value of a secret.
pub fn ctl_shows_no_secret()
    ensures list { ListHides }
    ensures texts { TextsHide }
    ensures fids { FidsHide }
    ensures nexts { NextsHide }
    ensures held { CountsHide }
    ensures holders { HoldersHide }
    ensures msize { SizesHide }
    ensures any_reply { RepliesHide }
    ensures any_deeds { DeedsHide }
    ensures open_deletes { NoneDeletesBySecret }
{}

/// No later answer tells a secret, as long as no conversation was opened and nobody was asked anything: of two events that
/// do the same but for the secrets of keys, their replies among it, whatever happens then, no answer to any event tells
/// which of them it was.
pub fn no_later_answer_tells_a_secret()
    ensures { NoAnswerTells }
{}

/// Writes of ctl that differ in the secrets of the key of one line alone do the same but for secrets, and are refused
/// by the same text or not at all.
pub fn a_write_hides_its_secrets()
    ensures deeds { WritesAlike }
    ensures told { WritesToldAlike }
{}

/// Each question to a user is of a conversation that stands and waits for the reply: in confirm of one that waits for consent,
/// in needkey of one that waits for a key. No two of a file are of one conversation. Each was asked behind the search that came
/// to it, in confirm by the public text of the key that was found, in needkey by the template that was searched for.
pub fn a_user_is_asked_for_a_conversation_that_waits()
    ensures asked { UsersAreAsked }
    ensures follows { QuestionsFollowSearches }
{}

/// Reads of all files but rpc, among them ctl, confirm, needkey, proto and log, are answered by what is public: after two
/// histories that did the same in public, whatever their conversations met and their requests were answered, such a read
/// has the same reply, or waits after both; and the same reads wait.
pub fn reads_of_other_files_are_public()
    ensures reads { ReadsArePublic }
    ensures waits { WaitsArePublic }
{}

/// Histories that are the same without their secrets, entry by entry, did the same in public, but for how many bytes reads of
/// rpc may hold that wait: reads of all files but rpc are answered alike after both, the same reads wait, and those of files of
/// lines that waited were told the same bytes, tag by tag.
pub fn reads_show_no_more_than_a_redaction()
    ensures public { RedactionsArePublic }
    ensures reads { ReadsAreRedacted }
    ensures waits { WaitsAreRedacted }
    ensures told { LinesAreRedacted }
{}

/// Whatever a conversation was started with and met, it searches for keys and offers by templates of public attributes alone, so
/// that what is kept of a search tells no secret.
pub fn a_search_is_public()
    ensures { SearchesArePublic }
{}

/// A file that nobody has open asks nobody: no search comes to a question in confirm, or in needkey, that isn't open; and after
/// fids were given up nobody waits for a reply in one that isn't.
pub fn a_closed_file_asks_nobody()
    ensures consent { NoneAsksConsent }
    ensures key { NoneAsksKey }
    ensures ended { ClosedAsksNobody }
{}

/// Each line of the log tells of a conversation as it stands when the line is written: that it has started, where the further
/// lines are wanted then, or how it ended.
pub fn a_line_of_the_log_tells_of_a_conversation()
    ensures { LinesTell }
{}
