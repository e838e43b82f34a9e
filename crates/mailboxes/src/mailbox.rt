// Mailboxes.
use std::alloc::{AllocError, Global};
use std::collections::VecDeque;
use std::sync::{Condvar, Mutex, Wait};

// What lies under the lock.
#[derive(Drop)]
struct Inbox<T: Drop> {
    items: VecDeque<T>,
    closed: bool,
}

/// What was put into it waits there until it is taken, in the order of the puts.
#[derive(Drop)]
pub struct Mailbox<T: Drop> {
    inbox: Mutex<Inbox<T>>,
    news: Condvar,
}

impl<T: Drop> Inbox<T> {
    // Whether the item is the only one: then somebody may sleep for it.
    fn put(&mut self, item: T) -> Result<bool, AllocError> {
        if self.closed {
            return Ok(false);
        }
        let first = self.items.is_empty();
        self.items.push_back(item)?;
        Ok(first)
    }
}

impl<T: Drop> Mailbox<T> {
    /// An open one that is empty.
    pub fn new(alloc: Global) -> Mailbox<T> {
        Mailbox {
            inbox: Mutex::new(Inbox {
                items: VecDeque::new(alloc),
                closed: false,
            }),
            news: Condvar::new(),
        }
    }

    /// Puts an item behind all others. Where the mailbox is closed, the item is dropped.
    pub fn put<R: Wait>(&self, rt: &R, item: T) -> Result<(), AllocError> {
        let put = self.inbox.lock(rt).put(item);
        if put? {
            self.news.notify_all();
        }
        Ok(())
    }

    /// Takes the first item, and sleeps until there is one. None once the mailbox is closed and empty.
    pub fn take<R: Wait>(&self, rt: &R) -> Option<T> {
        let mut inbox = self.news.wait_while(
            rt,
            self.inbox.lock(rt),
            |inbox| inbox.items.is_empty() && !inbox.closed,
        );
        inbox.items.pop_front()
    }

    /// Closes the mailbox. What waits in it can still be taken.
    pub fn close<R: Wait>(&self, rt: &R) {
        self.inbox.lock(rt).closed = true;
        self.news.notify_all();
    }

    /// Closes the mailbox, and drops what waits in it.
    pub fn shut<R: Wait>(&self, rt: &R) {
        let mut inbox = self.inbox.lock(rt);
        inbox.closed = true;
        inbox.items.clear();
        self.news.notify_all();
    }
}
