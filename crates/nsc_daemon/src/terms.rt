// `Terms`: the options of a daemon.
use nsc_model::Conf;
use nsc_server::Scopes;

/// What a daemon runs under.
#[derive(Clone, Copy)]
pub struct Terms<'a> {
    /// The settings of the databases. Their suggested sizes are 1 to 65,536.
    pub conf: &'a Conf,
    /// How many threads serve connections, beside the one that accepts them.
    pub workers: u32,
    /// The path of the folder in which the sockets stand.
    pub run_dir: &'a str,
    /// The path of the gate, where there is to be one.
    pub gate: Option<&'a str>,
    /// Which lookups of each database are answered. The gate answers all.
    pub scopes: Scopes,
}
