// What the command line asks for.
use std::str::FromStr;

#[derive(Clone, Copy, PartialEq, Eq, Debug, Default)]
pub enum ListKind {
    #[default]
    Table,
    Heap,
}

#[derive(Clone, Copy, PartialEq, Eq, Debug, Default)]
pub enum OrderKind {
    #[default]
    Number,
    Rate,
}

// A word that names no list, or no order.
#[derive(Clone, Copy, PartialEq, Eq, Debug)]
pub struct UnknownWord;

impl FromStr for ListKind {
    type Err = UnknownWord;

    fn from_str(s: &str) -> Result<ListKind, UnknownWord> {
        match s {
            "table" => Ok(ListKind::Table),
            "heap" => Ok(ListKind::Heap),
            _ => Err(UnknownWord),
        }
    }
}

impl FromStr for OrderKind {
    type Err = UnknownWord;

    fn from_str(s: &str) -> Result<OrderKind, UnknownWord> {
        match s {
            "number" => Ok(OrderKind::Number),
            "rate" => Ok(OrderKind::Rate),
            _ => Err(UnknownWord),
        }
    }
}

// Which ready list and which tie order; none where nothing was said.
#[derive(Clone, Copy, Default)]
pub struct Options {
    pub list: Option<ListKind>,
    pub order: Option<OrderKind>,
}

pub const USAGE: &str = "usage: rehearse [--list table|heap] [--order number|rate] < INPUT";

impl Options {
    // One option and its value added to the others; none where it is unknown or stands twice.
    fn with(self, flag: &str, value: &str) -> Option<Options> {
        match flag {
            "--list" if self.list.is_none() => Some(Options {
                list: Some(value.parse().ok()?),
                ..self
            }),
            "--order" if self.order.is_none() => Some(Options {
                order: Some(value.parse().ok()?),
                ..self
            }),
            _ => None,
        }
    }
}

// The options that the words of a command line give, or none where they are no such command line.
pub(crate) fn parse(words: &[String]) -> Option<Options> {
    let mut options = Options::default();
    for pair in words.chunks(2) {
        let [flag, value] = pair else {
            return None;
        };
        options = options.with(flag.as_str(), value.as_str())?;
    }
    Some(options)
}
