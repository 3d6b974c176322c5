// Theorems on runs. Each function computes nothing; its contract is a theorem.
ghost use Rattle.runs.specs.RunTheorems.{RunExists, RunForInputs, WavesRise};

// For given delays and input waveforms a valid circuit has a run, and just one.
pub fn run_exists_and_is_unique()
    ensures { RunExists }
{}

// For given input waveforms a valid circuit has a run.
pub fn run_exists_for_inputs()
    ensures { RunForInputs }
{}

// The waveform of every net of a run rises.
pub fn waves_of_a_run_rise()
    ensures { WavesRise }
{}
