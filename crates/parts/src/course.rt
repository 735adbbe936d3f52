// The letters of a course, stretch by stretch: no move is stepped through.
ghost use Rattle.std.specs.Prelude.{◌++◌, map, ◌≡◌, ◌-◌, ◌≤◌, min, length, take, drop};
ghost use Rattle.board.specs.Task.{limit};
ghost use Rattle.route.specs.Inner.Stage.{course_parts};
ghost use Rattle.route.specs.Part.{part_letter};
ghost use Rattle.parts.specs.Inner.Course.{spreads_from, counted_parts};

use route::Part;
use route::count::lesser;
use route::course::Course;

// The stretches of a course of so many moves: a direct course has no shift and no second crossing, and the spreading is what is left.
#[tactic(auto, using(crate::proofs::Stretches::counted_course))]
fn stretches(course: Course, moves: u64) -> [(Part, u64); 5]
    requires disc_le_limit { course.disc ≤ limit }
    requires course_bound { spreads_from course ≤ moves }
    ensures { counted_parts result ≡ course_parts course (moves - spreads_from course) }
{
    let (shift, again) = if course.detour {
        (plan::tower::length(course.disc), 1)
    } else {
        (0, 0)
    };
    let spread = moves - course.first - 1 - shift - again;
    [
        (Part::Gather, course.first),
        (Part::Cross, 1),
        (Part::Shift, shift),
        (Part::Cross, again),
        (Part::Spread, spread),
    ]
}

// Writes the letters of a course of so many moves from an index on, as many as remain or fit, and answers how many.
#[tactic(auto, using(crate::proofs::Stretches::counted_length, crate::proofs::Written::counted_bound, crate::proofs::Written::written_none), unfolding(crate::specs::Inner::Course::counted_parts))]
pub fn write_course(course: Course, moves: u64, first: u64, out: &mut [u8]) -> usize
    requires disc_le_limit { course.disc ≤ limit }
    requires course_bound { spreads_from course ≤ moves }
    ensures value { result ≡ min (moves - first) (length out.old) }
    ensures out_after { out.new ≡ map part_letter (take result (drop first (course_parts course (moves - spreads_from course)))) ++ drop result out.old }
{
    let mut end = 0;
    let mut written = 0;
    for (part, count) in stretches(course, moves) {
        end += count;
        let reached = lesser(end.saturating_sub(first), out.len());
        out[written..reached].fill(part.letter());
        written = reached;
    }
    written
}
