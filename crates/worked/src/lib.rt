// The worked examples as a theorem: what the definitions say of the plan in examples/ and at the edges of its limits.
#![tactic(auto)]

ghost use Rattle.worked.specs.NotEmpty.{NotEmpty};
ghost use Rattle.worked.specs.Table.{WorkedExamples};

// Every line of the table holds.
pub fn worked_examples()
    ensures { WorkedExamples }
{}

// The laws speak of something.
pub fn not_empty()
    ensures { NotEmpty }
{}
