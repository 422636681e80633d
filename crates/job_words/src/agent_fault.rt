use jv_names::Units;

/// The first fault of an agent file, with the key at which it shows.
#[derive(Drop, Debug)]
pub enum AgentFault {
    /// The file isn't TOML.
    Syntax,
    /// The key must stand there, and doesn't.
    Missing(Units),
    /// No key has this name there.
    Unknown(Units),
    /// The value is of a wrong kind, or names nothing.
    Kind(Units),
    /// There are more values than there may be.
    TooMany(Units),
}
