//! Laws of the answers of an etcd that keeps a log. The body of each is empty.

ghost use Rattle.etcd_messages.specs.Stated.{ReadsAppends, ReadsPages};

/// The answer to an append is read as what became of it: whether the log took the line, had another
/// one there, or lacked the one before.
pub fn reads_what_became_of_an_append()
    ensures { ReadsAppends }
{}

/// The answer with lines is read as these lines, and whether there are more.
pub fn reads_the_lines_of_a_page()
    ensures { ReadsPages }
{}
