use std::alloc::Global;
use std::fmt;

/// What there is to tell of a host.
#[derive(Clone, Copy, PartialEq, Eq)]
pub enum News {
    /// Nothing could be delivered to it for long.
    Fails,
    /// It is asked at none of its addresses.
    IsRefused,
    /// A message to it was settled again.
    IsReached,
}

/// What an administrator is told of a host. Its text is one line without its end.
#[derive(Drop)]
pub struct Note {
    host: String,
    /// How many messages wait for it.
    messages: u32,
    news: News,
}

impl Note {
    /// A note of a host, where there is memory for it.
    pub fn of(alloc: Global, host: &str, messages: u32, news: News) -> Option<Note> {
        let host = String::from_str(alloc, host).ok()?;
        Some(Note {
            host,
            messages,
            news,
        })
    }
}

impl fmt::Display for Note {
    fn fmt<W: fmt::Write>(&self, f: &mut fmt::Formatter<W>) -> fmt::Result {
        let host = self.host.as_str();
        let messages = self.messages;
        match self.news {
            News::Fails => write!(
                f,
                "nothing can be delivered to {host}; messages due: {messages}"
            ),
            News::IsRefused => write!(
                f,
                "nothing is delivered to {host}: its address is not public, and --peers private is not given; messages due: {messages}"
            ),
            News::IsReached => write!(f, "{host} is reached again; messages due: {messages}"),
        }
    }
}
