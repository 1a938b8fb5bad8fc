// What is read of a query.
ghost use Rattle.std.specs.Prelude.{◌≡◌};
ghost use Rattle.std.specs.Option.{option_copied};
ghost use Rattle.iam_json_data.specs.Reading.{Gives};
ghost use Rattle.iam_json.specs.Query.{parameter_at, ReadsNodeAt};

use iam_json_data::BodyStop;
use iam_names::NodeName;
use iam_text::Text;
use std::alloc::Global;

// The first parameter with this name.
fn parameter_at<'a>(name: &str, pairs: &'a [(Text, Text)]) -> Option<&'a (Text, Text)>
    ensures { option_copied result ≡ parameter_at name.now pairs.now }
{
    pairs.iter().find(|pair| pair.0.as_str() == name)
}

/// The node that a parameter names, which has to be there.
pub fn read_node_at(alloc: Global, name: &str, pairs: &[(Text, Text)]) -> Result<NodeName, BodyStop>
    ensures { Gives (ReadsNodeAt name.now pairs.now) result }
{
    let Some(pair) = parameter_at(name, pairs) else {
        let path = Text::of(alloc, name)?;
        return Err(BodyStop::BadField { path });
    };
    match NodeName::read(alloc, pair.1.as_str())? {
        Some(node) => Ok(node),
        None => {
            let path = Text::of(alloc, name)?;
            Err(BodyStop::BadField { path })
        }
    }
}
