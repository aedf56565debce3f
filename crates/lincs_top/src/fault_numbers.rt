//! The numbers of the faults, as the error lines print them.
ghost use Rattle.std.specs.Prelude.{◌≡◌};
ghost use Rattle.lincs_top.specs.FaultNumbers.{plain, at, yaml_number, problem_number, model_number, table_number};
ghost use Rattle.lincs_top.specs.FaultNumbers.{grade_number, line_number};

use line_core::LineFault;
use model_core::ModelFault;
use problem_core::{GradeFault, ProblemFault};
use table_core::TableFault;
use yaml_core::YamlFault;

/// The number of a fault, and its place in the file, if it has one.
#[derive(Clone, Copy)]
pub(crate) struct FaultNumber {
    pub(crate) code: u32,
    pub(crate) place: Option<u32>,
}

fn plain(code: u32) -> FaultNumber
    ensures { result ≡ plain code }
{
    FaultNumber { code, place: None }
}

fn at(code: u32, place: u32) -> FaultNumber
    ensures { result ≡ at code place }
{
    FaultNumber {
        code,
        place: Some(place),
    }
}

pub(crate) fn yaml_number(fault: YamlFault) -> FaultNumber
    ensures { result ≡ yaml_number fault }
{
    match fault {
        YamlFault::NoMemory => plain(0),
        YamlFault::NotUtf8 => plain(1),
        YamlFault::Form => plain(2),
        YamlFault::Many => plain(3),
    }
}

pub(crate) fn problem_number(fault: ProblemFault) -> FaultNumber
    ensures { result ≡ problem_number fault }
{
    match fault {
        ProblemFault::NoMemory => plain(0),
        ProblemFault::NotAMap => plain(1),
        ProblemFault::Kind => plain(2),
        ProblemFault::Version => plain(3),
        ProblemFault::NoCriteria => plain(4),
        ProblemFault::CriteriaCount => plain(5),
        ProblemFault::CriterionForm(place) => at(6, place),
        ProblemFault::CriterionName(place) => at(7, place),
        ProblemFault::ValueType(place) => at(8, place),
        ProblemFault::Direction(place) => at(9, place),
        ProblemFault::Bounds(place) => at(10, place),
        ProblemFault::Names(place) => at(11, place),
        ProblemFault::NoCategories => plain(12),
        ProblemFault::CategoriesCount => plain(13),
        ProblemFault::Category(place) => at(14, place),
    }
}

pub(crate) fn model_number(fault: ModelFault) -> FaultNumber
    ensures { result ≡ model_number fault }
{
    match fault {
        ModelFault::NoMemory => plain(0),
        ModelFault::NotAMap => plain(1),
        ModelFault::Kind => plain(2),
        ModelFault::Version => plain(3),
        ModelFault::NoAccepted => plain(4),
        ModelFault::AcceptedForm(place) => at(5, place),
        ModelFault::AcceptedCount(place) => at(6, place),
        ModelFault::Threshold(place) => at(7, place),
        ModelFault::Order(place) => at(8, place),
        ModelFault::NoCoalitions => plain(9),
        ModelFault::CoalitionForm(place) => at(10, place),
        ModelFault::Weights(place) => at(11, place),
        ModelFault::Roots(place) => at(12, place),
    }
}

pub(crate) fn table_number(fault: TableFault) -> FaultNumber
    ensures { result ≡ table_number fault }
{
    match fault {
        TableFault::NoMemory => plain(0),
        TableFault::NotUtf8 => plain(1),
        TableFault::NoHeader => plain(2),
        TableFault::ColumnMissing(place) => at(3, place),
        TableFault::ColumnUnknown(place) => at(4, place),
        TableFault::ColumnTwice(place) => at(5, place),
    }
}

pub(crate) fn grade_number(fault: GradeFault) -> u32
    ensures { result ≡ grade_number fault }
{
    match fault {
        GradeFault::NotANumber => 1,
        GradeFault::NotWhole => 2,
        GradeFault::OutOfBounds => 3,
        GradeFault::UnknownName => 4,
    }
}

/// The number of a fault of the command line, and that of its word.
pub(crate) fn line_number(fault: LineFault) -> (u32, u64)
    ensures { result ≡ line_number fault }
{
    match fault {
        LineFault::NoCommand(word) => (1, word),
        LineFault::UnknownCommand(word) => (2, word),
        LineFault::Missing(word) => (3, word),
        LineFault::Extra(word) => (4, word),
        LineFault::UnknownOption(word) => (5, word),
        LineFault::Twice(word) => (6, word),
        LineFault::BadNumber(word) => (7, word),
        LineFault::BadWord(word) => (8, word),
    }
}
