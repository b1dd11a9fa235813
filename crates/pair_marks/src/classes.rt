// Classes of types, by labels: a word for each type, and types of one label are of one class.
ghost use Rattle.std.specs.Prelude.{◌≡◌, ◌<◌, ◌≤◌, length};
ghost use Rattle.objects.specs.Bounds.{max_types};
ghost use Rattle.pair_marks.specs.Classes.{Single, relabelled, Joined};

use objects::TypeKey;

// Every type is a class of its own.
pub fn number(labels: &mut [u32])
    requires { length labels.old ≤ max_types }
    ensures { Single labels.new }
{
    for (i, label) in labels.iter_mut().enumerate() {
        *label = i as u32;
    }
}

// Every label `old` becomes `new`. Each is stored, changed or not, so that several can be at a time.
fn relabel(labels: &mut [u32], new: u32, old: u32)
    ensures { labels.new ≡ relabelled new old labels.old }
{
    for label in labels.iter_mut() {
        let c = *label;
        *label = if c == old { new } else { c };
    }
}

// The classes of x and y become one: that of y takes the label of x.
pub fn join(labels: &mut [u32], x: TypeKey, y: TypeKey)
    requires { (x.0 < length labels.old) × (y.0 < length labels.old) }
    ensures { Joined labels.old labels.new x y }
{
    let a = labels[x.0 as usize];
    let b = labels[y.0 as usize];
    relabel(labels, a, b);
}
