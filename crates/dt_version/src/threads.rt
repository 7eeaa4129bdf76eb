use crate::author::{Author, AuthorSeat};
use crate::note::Note;
use crate::reader_seat::ReaderSeat;
use crate::store::Store;
use dt_gate::Meaning;

fn may_be_sent<T: Send>() {}

fn may_be_shared<T: Sync>() {}

// A store may be sent and shared; seats, notes and authors may be sent.
fn threads_may_have_them<'s, M: Meaning + 's>() {
    may_be_sent::<Store<M>>();
    may_be_shared::<Store<M>>();
    may_be_sent::<AuthorSeat<M>>();
    may_be_sent::<Author<'s, M>>();
    may_be_sent::<ReaderSeat<'s, M>>();
    may_be_sent::<Note<'s, M>>();
}
