// The calls of a rack as values, and their answers.
use rack_state::{Entry, Fault};
use tensors::StoreRequest;

#[derive(Clone, Copy)]
pub enum Call<'c, P> {
    Store(StoreRequest<'c, P>),
    Compile { line: &'c [u8] },
    Step,
    Read { n: usize },
    Drop,
}

// What a call did: STORE answers the value positions used, COMPILE the number of commands, STEP how many remain, READ a result or none, DROP the commands carried out.
#[derive(Clone, Copy)]
pub enum Done<V> {
    Stored(usize),
    Compiled(usize),
    Stepped(usize),
    Listed(Option<Entry<V>>),
    Dropped(usize),
}

// Or why it is refused.
pub type Answer<V> = Result<Done<V>, Fault>;
