// Daemons that are taken out to be run.
use expr_check::Checked;

/// A daemon that is to be run: its number and its whole expression.
#[derive(Drop)]
pub struct Claim {
    pub number: u64,
    pub checked: Checked,
}
