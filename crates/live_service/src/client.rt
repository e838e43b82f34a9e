// Where a service's lines come from and its answers go.
use line_exchange::{Console, LineSource, Stream};
use std::marker::PhantomData;

/// Where lines come from and who prints the answers: one parameter names both. `J` names the lines.
pub(crate) trait Client<J: Stream> {
    type Lines: LineSource<J> + Send + Drop;

    type Console: Console<J> + Drop;
}

/// These lines and this console. No value is made of it.
pub(crate) struct Ends<L, C> {
    of: PhantomData<(L, C)>,
}

impl<J, L, C> Client<J> for Ends<L, C>
where
    J: Stream,
    L: LineSource<J> + Send + Drop,
    C: Console<J> + Drop,
{
    type Lines = L;

    type Console = C;
}
