// What an entry is asked: the two columns of a table, and a query.
use meaning::Query;

#[derive(Clone, Copy)]
pub struct Question<'a> {
    pub post: &'a [u16],
    pub label: &'a [u16],
    pub query: Query,
}

impl<'a> Question<'a> {
    pub fn of(post: &'a [u16], label: &'a [u16], query: Query) -> Question<'a> {
        Question { post, label, query }
    }
}
