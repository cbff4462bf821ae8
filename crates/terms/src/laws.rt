ghost use Rattle.terms.specs.Calendar.{Century, MonthsPassed, Written};

/// Does nothing. Its contract has the laws of the definitions that dates rest on.
pub fn date_laws()
    ensures written { Written }
    ensures century { Century }
    ensures passed { MonthsPassed }
{}
