//! The names of the calls.

/// A call of a layer.
#[derive(Clone, Copy)]
pub enum Call {
    Lex,
    Tokens,
    Expr,
    Formula,
    Eval,
    Value,
    Cmp,
    Settings,
    Stops,
    Print,
    WriteWhole,
    OutSink,
    FullSink,
    FileSource,
    MemSource,
    PlainSource,
    HashKey,
    SameText,
}

/// The call that a word names, of the layers from tokens to traces.
fn layer_call(word: &[u8]) -> Option<Call> {
    match word {
        b"lex" => Some(Call::Lex),
        b"tokens" => Some(Call::Tokens),
        b"expr" => Some(Call::Expr),
        b"formula" => Some(Call::Formula),
        b"eval" => Some(Call::Eval),
        b"value" => Some(Call::Value),
        b"cmp" => Some(Call::Cmp),
        b"settings" => Some(Call::Settings),
        b"stops" => Some(Call::Stops),
        b"print" => Some(Call::Print),
        _ => None,
    }
}

/// The call that a word names, of what reads and writes.
fn outside_call(word: &[u8]) -> Option<Call> {
    match word {
        b"write_whole" => Some(Call::WriteWhole),
        b"out_sink" => Some(Call::OutSink),
        b"full_sink" => Some(Call::FullSink),
        b"file_source" => Some(Call::FileSource),
        b"mem_source" => Some(Call::MemSource),
        b"plain_source" => Some(Call::PlainSource),
        b"hash_key" => Some(Call::HashKey),
        b"same_text" => Some(Call::SameText),
        _ => None,
    }
}

/// The call that a word names.
pub fn call_of(word: &[u8]) -> Option<Call> {
    match layer_call(word) {
        Some(call) => Some(call),
        None => outside_call(word),
    }
}
