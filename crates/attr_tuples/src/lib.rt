//! Lines of a text and the words of a line, with quotes after rc(1) of the Plan 9 manual; and attributes in tuples,
//! as Plan 9's factotum keeps and prints them: names with values, with questions or alone.
#![tactic(auto)]

mod attr;
mod compare;
mod cutting;
mod fault;
mod forms;
mod giving;
mod laws;
mod line;
mod merging;
mod parse;
mod print;
mod tuple;
mod value;
mod word;
mod word_laws;

pub use attr::{Attr, Value};
pub use compare::{has_name, is_named, is_secret_name, matches, public_equal, value_of};
pub use cutting::cut_line;
pub use fault::{MergeFault, TupleFault};
pub use forms::{is_dom, is_user};
pub use giving::{gives, gives_any, gives_dom, gives_user, is_given, is_named_once};
pub use laws::{
    printed_tuples_are_read, public_equal_compares, public_equal_hides_secrets,
    public_text_hides_secrets, tuples_are_what_they_say, users_and_domains_are_names,
    what_is_given_is_held,
};
pub use line::{check_line_byte, line_len};
pub use merging::merge;
pub use parse::parse_tuple;
pub use print::{print_public, print_tuple};
pub use tuple::Tuple;
pub use value::put_value;
pub use word::{WordFault, gap_end, take_word};
pub use word_laws::{lines_are_whole, words_are_their_parts, words_of_lines_are_lines};
