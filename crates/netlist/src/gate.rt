// One gate of a circuit.
use functions::Function;

// the number of a net: inputs from 0, then gates in file order
pub type Net = u8;

#[derive(Drop)]
pub struct Gate {
    pub function: Function,
    pub least: u16,
    pub greatest: u16,
    pub pins: Vec<Net>,
}
